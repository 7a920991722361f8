//! Laws of names and layouts, each the contract of a function that does nothing.

ghost use Rattle.std.specs.Prelude.{◌≡◌, Some};
ghost use Rattle.tier_base.specs.declared.layout.Layout.{Layout};
ghost use Rattle.tier_base.specs.Key.{IdsDiffer};
ghost use Rattle.tier_base.specs.Layout.{LayoutFits, layout_bytes, layout_in};

/// Different partitions, brokers, incarnations or attempts have different ids.
#[tactic(auto, using(crate::proofs::IdFields::ids_differ))]
pub fn ids_differ()
    ensures { IdsDiffer }
{}

/// What is written of a layout is read as that layout.
#[tactic(auto, using(crate::proofs::Layouts::layout_again))]
pub fn a_written_layout_is_read_again()
    ensures { (l : Layout) → LayoutFits l → layout_in (layout_bytes l) ≡ Some l }
{}
