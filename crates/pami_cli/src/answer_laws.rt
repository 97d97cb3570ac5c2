//! What holds of every answer on a file, and of every answer of `check`.

ghost use Rattle.std.specs.Prelude.{◌≡◌, ◌≤◌, ◌⊎◌, ℕ, List, length};
ghost use Rattle.pami_algebra.specs.Fraction.{Fraction};
ghost use Rattle.pami_model.specs.Contents.{Contents};
ghost use Rattle.pami_model.specs.Rules.{byte_limit};
ghost use Rattle.pami_theory.specs.Certificate.{IsDualPoint};
ghost use Rattle.pami_method.specs.Walk.{IsOptions};
ghost use Rattle.pami_model_form.specs.ModelForm.{model_form};
ghost use Rattle.pami_cli.specs.declared.status.Status.{Status};
ghost use Rattle.pami_cli.specs.Reading.{Format, IsTextOf};
ghost use Rattle.pami_cli.specs.Judged.{IsShown, IsDisproved};
ghost use Rattle.pami_cli.specs.declared.wish.Wish.{Wish};
ghost use Rattle.pami_cli.specs.Trial.{AnswersTrial};
ghost use Rattle.pami_cli.specs.Run.{Answers, SolvesSoundly, Refuses, HasCertificate, ChecksText};

/// Each file has an answer, with options in their ranges.
pub fn files_have_an_answer()
    ensures { (format : Format) (bytes : List ℕ) (wish : Wish) → IsOptions wish.options
        → (status : Status) × (written : List ℕ) × Answers format bytes wish status written }
{}

/// A file has one answer: one status and one text.
pub fn files_have_one_answer()
    ensures { (format : Format) (bytes : List ℕ) (wish : Wish) (s t : Status) (w v : List ℕ)
        → Answers format bytes wish s w → Answers format bytes wish t v → (s ≡ t) × (w ≡ v) }
{}

/// Only a file with a first fault, or with a width that doesn't fit, is refused.
pub fn refused_files_have_a_fault()
    ensures { (format : Format) (bytes : List ℕ) (wish : Wish) (written : List ℕ)
        → Answers format bytes wish Status.File written → Refuses format bytes written }
{}

/// Where a file is answered dual infeasible, no y and d are a point of the dual program of its model.
pub fn dual_infeasible_files_have_no_dual_point()
    ensures { (format : Format) (bytes : List ℕ) (wish : Wish) (written : List ℕ)
        → Answers format bytes wish Status.DualInfeasible written
        → (c : Contents) → IsTextOf format bytes c → (y d : ℕ → Fraction) → ¬ IsDualPoint (model_form c) y d }
{}

/// `check` has an answer on the bytes of FILE and CERT.
pub fn checks_have_an_answer()
    ensures { (format : Format) (bytes text : List ℕ)
        → (status : Status) × (written : List ℕ) × ChecksText format bytes text status written }
{}

/// `check` has one answer on the bytes of FILE and CERT: one status and one text.
pub fn checks_have_one_answer()
    ensures { (format : Format) (bytes text : List ℕ) (s t : Status) (w v : List ℕ)
        → ChecksText format bytes text s w → ChecksText format bytes text t v → (s ≡ t) × (w ≡ v) }
{}

/// Where `check` answers `valid`, CERT is a certificate that holds against the model of FILE over fractions without bound, and
/// so shows what it is a certificate of: that no point costs less, that there is no point, or none of the dual program.
pub fn valid_certificates_hold()
    ensures { (format : Format) (bytes text written : List ℕ) → ChecksText format bytes text Status.Good written
        → (c : Contents) → IsTextOf format bytes c → IsShown c text }
{}

/// Where `check` answers `invalid`, CERT is a certificate that doesn't hold against the model of FILE.
pub fn invalid_certificates_fail()
    ensures { (format : Format) (bytes text written : List ℕ) → ChecksText format bytes text Status.Invalid written
        → (c : Contents) → IsTextOf format bytes c → IsDisproved c text }
{}

/// Each trial has an answer.
pub fn trials_have_an_answer()
    ensures { (seed sources sinks : ℕ) → (status : Status) × (written : List ℕ) × AnswersTrial seed sources sinks status written }
{}

/// A trial has one answer: one status and one text.
pub fn trials_have_one_answer()
    ensures { (seed sources sinks : ℕ) (s t : Status) (w v : List ℕ)
        → AnswersTrial seed sources sinks s w → AnswersTrial seed sources sinks t v → (s ≡ t) × (w ≡ v) }
{}

/// Given back what `solve` answers a file, `check` says `valid` of it, or `unchecked` where a number of the checker
/// doesn't fit: as far as that text has a certificate and keeps within the limit of bytes. That the answer is sound is said of
/// each one that the program writes.
pub fn own_texts_are_not_invalid()
    ensures { (format : Format) (bytes : List ℕ) (wish : Wish) (status : Status) (written : List ℕ)
        → HasCertificate status → length written ≤ byte_limit
        → Answers format bytes wish status written → SolvesSoundly format bytes wish.options
        → (s : Status) (w : List ℕ) → ChecksText format bytes written s w
        → (s ≡ Status.Good) ⊎ (s ≡ Status.Unchecked) }
{}
