// What holds of answers and their spots, each law as the contract of a function that does nothing.
ghost use Rattle.std.specs.Prelude.{◌≡◌, ◌<◌, ℕ, List, length, take};
ghost use Rattle.std.specs.List.{AllByRecursion};
ghost use Rattle.lrp_model.specs.Rows.{Tuple};
ghost use Rattle.lrp_model.specs.Satisfaction.{HasShape};
ghost use Rattle.lrp_model.specs.Texts.{Text as TextOf};
ghost use Rattle.lrp_model.specs.declared.relations.Column.{Column};
ghost use Rattle.lrp_model.specs.declared.tuples.Shape.{Shape};
ghost use Rattle.lrp_model.specs.declared.tuples.Spot.{Spot};
ghost use Rattle.lrp_store.specs.Least.{HasRoom, StandsFor};
ghost use Rattle.lrp_answers.specs.declared.answer.Answer.{Answer};
ghost use Rattle.lrp_answers.specs.Spots.{spot_tuple};
ghost use Rattle.lrp_outputs.specs.SmallAnswers.{IsSmallAnswer};

/// An answer whose zones are small has room for its least tuple.
pub fn small_answers_have_room()
    ensures { (a : Answer) (reach : ℕ) → IsSmallAnswer a reach → HasRoom a.store }
{}

/// The tuple that is told of a spot is the one of the columns that it stands for, and the numbers of its texts are numbers of
/// the domain.
pub fn spots_stand_for_tuples()
    ensures tuple { (columns : List Column) (shape : Shape) (domain : List TextOf) (spot : Spot)
        (tuple : Tuple)
        → HasShape columns tuple
        → StandsFor shape domain spot tuple
        → spot_tuple columns shape domain spot ≡ tuple }
    ensures known { (shape : Shape) (domain : List TextOf) (spot : Spot) (tuple : Tuple)
        → StandsFor shape domain spot tuple
        → AllByRecursion (λ n. n < length domain) (take shape.texts spot.texts) }
{}
