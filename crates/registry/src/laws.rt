//! Laws of views, each the contract of a function that does nothing.

ghost use Rattle.std.specs.Prelude.{◌≡◌, ◌↔◌};
ghost use Rattle.registry.specs.declared.registry.Registry.{Registry};
ghost use Rattle.registry.specs.declared.view.RegView.{RegView};
ghost use Rattle.registry.specs.View.{IsView, IsRegistry, view_of, registry_of};

/// The registry of a view that was taken of a registry is that registry.
#[tactic(auto, using(crate::proofs::Viewing::registry_back))]
pub fn a_registry_comes_back_from_its_view()
    ensures { (registry : Registry) → registry_of (view_of registry) ≡ registry }
{}

/// The view of a registry that was made of a view is that view, where it keeps the rules.
#[tactic(auto, using(crate::proofs::Viewing::view_back))]
pub fn a_view_comes_back_from_its_registry()
    ensures { (view : RegView) → IsView view → view_of (registry_of view) ≡ view }
{}

/// A view keeps the rules exactly where its registry does.
pub fn a_view_keeps_the_rules_where_its_registry_does()
    ensures { (registry : Registry) → IsView (view_of registry) ↔ IsRegistry registry }
{}
