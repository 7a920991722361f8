//! A law of what a crash leaves, as the contract of a function that does nothing.

ghost use Rattle.std.specs.Prelude.{◌≡◌};
ghost use Rattle.disk_model.specs.Content.{Files};
ghost use Rattle.log_steps.specs.Opens.{Opened, Opens};

/// An image opens in one way.
#[tactic(auto, using(crate::proofs::OneWay::opens_once))]
pub fn an_image_opens_in_one_way()
    ensures { (c : Files) (o p : Opened) → Opens c o → Opens c p → o ≡ p }
{}
