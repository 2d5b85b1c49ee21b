//! A law on verdicts, the contract of a function with an empty body.
ghost use Rattle.std.specs.Prelude.{◌≡◌, ℕ, List};
ghost use Rattle.cg_cert.specs.Judged.{Judges};
ghost use Rattle.cg_cert.specs.declared.check.Verdict.{Verdict as VerdictModel};

/// No bytes have two verdicts. So each verdict comes exactly if its cause holds.
pub fn one_verdict()
    ensures { (bytes : List ℕ) (a b : VerdictModel) → Judges bytes a → Judges bytes b → a ≡ b }
{}
