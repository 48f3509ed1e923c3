//! What holds of every order and every answer. These functions do nothing: their contracts are the theorems.
// They are not laws of a trait: what a trait takes stands in specs/, and so would these proofs, among the definitions.
ghost use Rattle.wire.specs.Laws.{OrdersReadBack, OnlyOrdersRead, OrdersApart, OrdersCease, AnswersReadBack, OnlyAnswersRead, AnswersApart};

/// An order's bytes are read as that order, no other bytes are, no two orders have the same, and what is no order ceases to be one at its misfit.
#[tactic(auto, using(crate::proofs::OrderLaws::orders_read_back, crate::proofs::OrderLaws::only_orders_read, crate::proofs::OrderLaws::orders_apart, crate::proofs::Misfits::orders_cease))]
pub fn order_laws()
    ensures back { OrdersReadBack }
    ensures only { OnlyOrdersRead }
    ensures apart { OrdersApart }
    ensures cease { OrdersCease }
{}

/// An answer's bytes are read as that answer, no other bytes are, and no two answers have the same.
#[tactic(auto, using(crate::proofs::AnswerLaws::answers_read_back, crate::proofs::AnswerLaws::only_answers_read, crate::proofs::AnswerLaws::answers_apart))]
pub fn answer_laws()
    ensures back { AnswersReadBack }
    ensures only { OnlyAnswersRead }
    ensures apart { AnswersApart }
{}
