// What is proved of the texts of whole answers, each law as the contract of a function that does nothing.
ghost use Rattle.std.specs.Prelude.{List};
ghost use Rattle.lrp_model.specs.AnswerTexts.{IsAnswerTextOf};
ghost use Rattle.lrp_model.specs.Checked.{plain_question};
ghost use Rattle.lrp_model.specs.Formulas.{Question};
ghost use Rattle.lrp_model.specs.Names.{AreNamed, IsName};
ghost use Rattle.lrp_model.specs.RawQueries.{RawQuestion};
ghost use Rattle.lrp_model.specs.Sorting.{IsWellSorted};
ghost use Rattle.lrp_model.specs.Texts.{Identifier};
ghost use Rattle.lrp_model.specs.declared.relations.Relation.{Relation};
ghost use Rattle.lrp_answers.specs.declared.answer.Answer.{Answer};
ghost use Rattle.lrp_answer_text.specs.AnswerText.{named_answer_text};
ghost use Rattle.lrp_answer_text.specs.Answering.{AreAnswerColumns, IsSettledAnswer};

/// The text of a settled answer is an answer text of the query, in rows of the answer's period: `Empty` where nothing
/// is an answer, and else a relation that holds just the answers, with closed bounds and in order, which reads back as
/// it is. Any name of the grammar may be the relation's.
pub fn answers_are_texts()
    ensures { (called : Identifier) (db : List Relation) (q : Question) (a : Answer) → IsName called
        → IsSettledAnswer db q a
        → IsAnswerTextOf called a.store.period db q (named_answer_text called a) }
{}

/// The head of a well-sorted query can be that of the relation `answer`, where its names are names: they differ, and it has
/// at most eight columns of each kind.
pub fn heads_are_columns()
    ensures { (db : List Relation) (q : RawQuestion) → IsWellSorted db q
        → AreNamed (plain_question q).head → AreAnswerColumns (plain_question q).head }
{}
