ghost use Rattle.node_run.specs.Laws.{AnswersAsDue, AnswersWhole, HasCauses};

/// What a run of a node comes to says of its status: it is the one that is due, where the files are told, and no fault
/// comes without its cause.
pub fn nodes_answer_as_due()
    ensures answered { AnswersAsDue }
    ensures complete { AnswersWhole }
    ensures causes { HasCauses }
{}
