//! Laws over the definitions of this crate. Each is the contract of a function that does nothing.

ghost use Rattle.std.specs.Prelude.{◌≡◌, ◌≢◌, ◌↔◌, ◌⊎◌, ◌<◌, ◌∷◌, [], ◌++◌, ℕ, List, true, Ok, Err};
ghost use Rattle.std.specs.Prelude.{All, Contains, length, slice_index};
ghost use Rattle.std.specs.List.Sorted.{IsStrictlySortedBy};
ghost use Rattle.cbor_profile.specs.declared.fault.Fault.{Fault};
ghost use Rattle.cbor_profile.specs.declared.fault.Reason.TheVariants.{Truncated, Trailing};
ghost use Rattle.bp_eid.specs.declared.stop.Stop.{Stop};
ghost use Rattle.bp_blocks.specs.declared.block.Block.{Block};
ghost use Rattle.bpsec_asb.specs.SecurityBlock.{IsSecurityBlock, Reads, spelling};
ghost use Rattle.bpsec_asb.specs.Reading.{asb_at, body_at, read_body};
ghost use Rattle.bpsec_asb.specs.Operations.{NumbersAreDistinct, BodiesAreBytes, IsOperationOf, IsCovered};
ghost use Rattle.bpsec_asb.specs.Operations.{IsVisible, IsHidden, IsKnown};
ghost use Rattle.bpsec_asb.specs.Order.{op_cmp};
ghost use Rattle.bpsec_asb.specs.Known.{known, is_covered};
ghost use Rattle.bpsec_asb.specs.declared.asb.Asb.{Asb};
ghost use Rattle.bpsec_asb.specs.declared.operation.OpId.{OpId};
ghost use Rattle.bpsec_asb.specs.declared.operation.Service.TheVariants.{Bcb};

/// A spelling determines its security block, and no spelling is a proper prefix of another.
pub fn security_blocks_have_one_spelling()
    ensures { (a b : Asb) (x y : List ℕ) → IsSecurityBlock a → IsSecurityBlock b → spelling a ++ x ≡ spelling b ++ y
        → (a ≡ b) × (x ≡ y) }
{}

/// What is spelled is read, whatever follows it; and a body is read exactly where it is spelled so, if its bytes are
/// below 256.
pub fn security_blocks_are_read_as_spelled()
    ensures again { (asb : Asb) (rest : List ℕ) → IsSecurityBlock asb → asb_at (spelling asb ++ rest) ≡ Ok (asb, rest) }
    ensures found { (body : List ℕ) (asb : Asb) → Reads body asb → read_body body ≡ Ok asb }
    ensures means { (body : List ℕ) (asb : Asb) → ((i : ℕ) → slice_index body i < 256) → read_body body ≡ Ok asb
        → Reads body asb }
{}

/// A fault other than bytes that end too early is answered again, with its place, whatever bytes are added. Bytes after
/// a security block are a fault at its end.
pub fn faults_stay_the_same()
    ensures fault { (body more : List ℕ) (fault : Fault) → read_body body ≡ Err fault → fault.reason ≢ Truncated
        → read_body (body ++ more) ≡ Err fault }
    ensures trailing { (asb : Asb) (byte : ℕ) (more : List ℕ) → IsSecurityBlock asb
        → read_body (spelling asb ++ byte ∷ more) ≡ Err (record { place = length (spelling asb); reason = Trailing }) }
{}

/// No operation covers a block confidentiality block. So its operations are known where its body is readable.
pub fn block_confidentiality_blocks_are_never_covered()
    ensures visible { (blocks : List Block) (block : Block) → NumbersAreDistinct blocks → Contains blocks block
        → block.kind ≡ 12 → IsVisible blocks block.number }
    ensures known { (blocks : List Block) (op : OpId) → NumbersAreDistinct blocks → op.service ≡ Bcb
        → IsOperationOf blocks op → IsKnown blocks op }
{}

/// Where no operation is undone, the hidden blocks are the covered ones.
pub fn covered_blocks_are_hidden_at_first()
    ensures { (blocks : List Block) (number : ℕ) → IsHidden [] blocks number ↔ IsCovered blocks number }
{}

/// A block is covered, as tested over the list of known operations, exactly where an operation covers it.
pub fn covered_blocks_are_covered()
    ensures { (blocks : List Block) (number : ℕ) → NumbersAreDistinct blocks → BodiesAreBytes blocks
        → ((is_covered blocks (known blocks) number ≡ true) ↔ IsCovered blocks number) }
{}

/// The list of known operations has each of them once, in order, and no other. No other list does.
pub fn known_operations_are_listed_once_in_order()
    ensures means { (blocks : List Block) → NumbersAreDistinct blocks → BodiesAreBytes blocks
        → All (IsKnown blocks) (known blocks) }
    ensures found { (blocks : List Block) (op : OpId) → BodiesAreBytes blocks → IsKnown blocks op
        → Contains (known blocks) op }
    ensures ordered { (blocks : List Block) → IsStrictlySortedBy op_cmp (known blocks) }
    ensures only { (xs ys : List OpId) → IsStrictlySortedBy op_cmp xs → IsStrictlySortedBy op_cmp ys
        → ((op : OpId) → Contains xs op ↔ Contains ys op) → xs ≡ ys }
{}
