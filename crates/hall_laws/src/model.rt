//! Laws of the model.
ghost use Rattle.std.specs.Prelude.{◌≡◌, ℕ, List, [], Some};
ghost use Rattle.hall_laws.specs.{Prelude.{Site, Client, Hall, Port, Content, nothing, Event, Frame}, Decision.decision_of, Refusing.IsRefusal, Step.{IsStep, Step}};

/// Every refusal of a request, and every silence to a frame, writes no row, and the step of a refusal leaves the hall as
/// it was.
#[tactic(auto, using(crate::proofs::AnswerLemmas::keeps, crate::proofs::AnswerLemmas::keeps_silence, crate::proofs::AnswerLemmas::keeps_hall))]
pub fn refusals_change_nothing()
    ensures rows { (site : Site) (h : Hall) (event : Event) (moment : ℕ) (fresh : List ℕ)
        → IsRefusal (decision_of site h event moment fresh).content → (decision_of site h event moment fresh).rows ≡ [] }
    ensures silences { (site : Site) (h : Hall) (port : Port) (client : Client) (moment : ℕ) (fresh : List ℕ)
        → (decision_of site h (Frame port client) moment fresh).content ≡ nothing → (decision_of site h (Frame port client) moment fresh).rows ≡ [] }
    ensures hall { (s : Step) (content : Content)
        → IsStep s → s.answer ≡ Some content → IsRefusal content → s.after ≡ s.before }
{}
