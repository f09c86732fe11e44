//! Plans.

ghost use Rattle.std.specs.Prelude.{◌≡◌, IsTrue};
ghost use Rattle.cbor_profile.specs.Step.{Gives};
ghost use Rattle.serde_json.specs.View.{view};
ghost use Rattle.bp_text.specs.Fault.{IsTextError};
ghost use Rattle.bpsec_plan.specs.Items.{is_plan};
ghost use Rattle.bpsec_plan.specs.PlanText.{is_plan_shape, plan_at, plan_of};

use crate::item::Item;
use bp_text::{
    Kind, Names, TextError, TextReason, has, has_only, is_short, laws, list_field, read_entries,
    read_tree, refused, version_field,
};
use cbor_profile::List;
use serde_json::Value;
use std::alloc::Global;
use std::marker::Model;

/// The most items of a plan.
pub const ITEM_LIMIT: usize = 62;

/// The security blocks that are to be added to a bundle, in their order. A contract sees it as the list of its items.
#[derive(Debug, Drop)]
pub struct Plan {
    items: List<Item>,
}

impl Model for Plan {
    ghost use Rattle.std.specs.Prelude.{List, IsTrue};
    ghost use Rattle.bpsec_plan.specs.declared.item.Item.{Item};
    ghost use Rattle.bpsec_plan.specs.Items.{is_plan};

    ghost Value = { List Item };

    ghost view = { λ p. p.items };

    ghost invariant = { λ p. IsTrue (is_plan p.items) };
}

/// Whether the tree has the shape of a plan.
#[tactic(auto, unfolding(crate::specs::PlanText::is_plan_shape))]
fn is_plan_shape(tree: &Value) -> bool
    ensures { result ≡ is_plan_shape (view tree.now) }
{
    has_only(tree, &["version", "items"]) && has(tree, "items", Kind::Array { least: 1 })
}

/// The items of a plan's tree.
#[tactic(auto, unfolding(crate::specs::PlanText::plan_at))]
fn items_of(alloc: Global, tree: &Value) -> Result<List<Item>, TextError>
    ensures { Gives IsTextError (λ items. items) result (plan_at (view tree.now)) }
{
    match version_field(tree, &[1]) {
        Ok(_) => {}
        Err(e) => return Err(e),
    }
    if !is_plan_shape(tree) {
        return Err(refused(TextReason::WrongShape));
    }
    if !is_short(tree, "items", ITEM_LIMIT) {
        return Err(refused(TextReason::TooMany));
    }
    let Some(items) = list_field(tree, "items") else {
        return Err(refused(TextReason::WrongShape));
    };
    let mut names = Names::new(alloc);
    read_entries(alloc, 1, items, 0, &mut names)
}

impl Plan {
    /// The plan of these items. Takes no memory.
    pub fn of(items: List<Item>) -> Plan
        requires { IsTrue (is_plan items) }
        ensures { result ≡ items }
    {
        Plan { items }
    }

    /// The items, in their order. Takes no memory.
    pub fn items(&self) -> &[Item]
        ensures value { result.now ≡ self.now }
        ensures rule { IsTrue (is_plan self.now) }
    {
        self.items.items()
    }

    /// The plan whose text this is, or the first fault.
    pub fn from_json(alloc: Global, bytes: &[u8]) -> Result<Plan, TextError>
        ensures { Gives IsTextError (λ plan. plan) result (plan_of bytes.now) }
    {
        laws::names_stand_once::<Item>();
        laws::entries_are_alike::<Item>();
        let tree = match read_tree(alloc, bytes) {
            Ok(tree) => tree,
            Err(e) => return Err(e),
        };
        match items_of(alloc, &tree) {
            Ok(items) => Ok(Plan { items }),
            Err(e) => Err(e),
        }
    }
}
