// In which language a query is written.
ghost use Rattle.std.specs.Prelude.{◌≡◌};
ghost use Rattle.lrp_top.specs.Languages.{civil_by, language_by, usual_by};
ghost use Rattle.lrp_words.specs.Commands.{asked_files};

use lrp_civil::CivilText;
use lrp_words::QuestionFiles;

/// The language of a query: formulas of first-order logic alone, with temporal operators, or the wide language, in which
/// dates may stand too.
#[derive(Clone, Copy, PartialEq, Eq)]
pub enum QueryLanguage {
    FirstOrder,
    Temporal,
    Wide { civil: bool },
}

/// The language that a question's words ask for. Where it is the wide one, the word for temporal operators says nothing more.
pub fn language_of(files: &QuestionFiles<'_>) -> QueryLanguage
    ensures { result ≡ language_by (asked_files files.now) }
{
    if files.wide {
        return QueryLanguage::Wide { civil: files.civil };
    }
    if files.tense {
        QueryLanguage::Temporal
    } else {
        QueryLanguage::FirstOrder
    }
}

/// Which civil values a question's database may have.
pub fn civil_of(files: &QuestionFiles<'_>) -> Option<CivilText>
    ensures { result ≡ civil_by (asked_files files.now) }
{
    if !files.civil {
        return None;
    }
    if files.wide {
        Some(CivilText::WideDatabase)
    } else {
        Some(CivilText::Database)
    }
}

/// The same where the words say no more than whether times are civil ones.
pub fn usual_civil(civil: bool) -> Option<CivilText>
    ensures { result ≡ usual_by civil }
{
    civil.then_some(CivilText::Database)
}
