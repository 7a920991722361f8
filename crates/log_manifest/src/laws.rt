//! Laws of the spelling, each the contract of a function that does nothing.

ghost use Rattle.std.specs.Prelude.{◌≡◌, ℕ, ◌<◌, ◌^◌, List, All, Ok};
ghost use Rattle.log_manifest.specs.declared.manifest.Manifest.{Manifest};
ghost use Rattle.log_manifest.specs.Rules.{IsManifest};
ghost use Rattle.log_manifest.specs.Spelling.{manifest_bytes};
ghost use Rattle.log_manifest.specs.Reading.{manifest_in};

/// What is written of a manifest is read as that manifest.
#[tactic(auto, using(crate::proofs::Again::manifest_again))]
pub fn a_written_manifest_is_read_again()
    ensures { (manifest : Manifest) → IsManifest manifest → manifest.incarnation < 2 ^ 32
        → manifest_in (manifest_bytes manifest) ≡ Ok manifest }
{}

/// What is read as a manifest is written so: no other bytes are read as it.
#[tactic(auto, using(crate::proofs::OneSpelling::one_spelling))]
pub fn a_manifest_has_one_spelling()
    ensures { (bytes : List ℕ) (manifest : Manifest) → All (λ b. b < 256) bytes
        → manifest_in bytes ≡ Ok manifest → bytes ≡ manifest_bytes manifest }
{}
