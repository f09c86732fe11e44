//! Laws over the definitions of this crate. Each is the contract of a function that does nothing.

ghost use Rattle.std.specs.Prelude.{◌≡◌, ◌++◌, ℕ, List};
ghost use Rattle.bp_blocks.specs.Spelling.{IsBlock, spelling};
ghost use Rattle.bp_blocks.specs.declared.block.Block.{Block};

/// A spelling determines its block, and no spelling is a proper prefix of another.
pub fn blocks_have_one_spelling()
    ensures { (a b : Block) (x y : List ℕ) → IsBlock a → IsBlock b
        → spelling a ++ x ≡ spelling b ++ y → (a ≡ b) × (x ≡ y) }
{
    cbor_profile::laws::heads_have_one_spelling();
}
