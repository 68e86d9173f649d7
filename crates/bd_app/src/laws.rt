//! What holds of every run and of every text: laws that are proved, and have no code. A run whose words are taken and
//! whose files have no fault ends with an answer, and each text reads as something.
ghost use Rattle.bd_model.specs.DesignView.{DesignView};
ghost use Rattle.bd_model.specs.Lawful.{IsLawful};
ghost use Rattle.bd_app.specs.Laws.{CasesRead, CompletionsDenote, CompletionsDenoteOnce, RunsAnswer, TrailsRead};

/// A run ends with one of its command's answers, or as memory runs out, where the words are taken, the files tell what
/// they hold, each file that is named is held, none is too long or has a fault, and no device failed.
pub fn runs_answer()
    ensures { RunsAnswer }
{}

/// A text is a case of a design, or has a first fault.
pub fn cases_read()
    ensures { CasesRead }
{}

/// A text is a trail of a design, or has a first fault.
pub fn trails_read()
    ensures { TrailsRead }
{}

/// The texts of a design and of a completion function on it denote the two, or have a first fault.
pub fn completions_denote()
    ensures { CompletionsDenote }
{}

/// The texts of a design and of a completion function on it denote at most one thing: one design and abstraction, or
/// one first fault, and never both.
pub fn completions_denote_once()
    ensures { CompletionsDenoteOnce }
{}

/// Some design is lawful, so what is promised of lawful designs says something.
pub fn some_design()
    ensures { (d : DesignView) × IsLawful d }
{}
