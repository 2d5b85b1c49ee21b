//! A worked script with a weak value map, as a theorem.
ghost use Rattle.cg_weakcoll.specs.Worked.{AnswersBoth};

/// Some run of it satisfies the premises of the laws: the expansion spells the script, its first
/// look-up answers the object, and the second none.
pub fn a_cache_answers_both()
    ensures { AnswersBoth }
{}
