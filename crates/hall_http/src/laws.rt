//! What holds of responses.
ghost use Rattle.std.specs.Prelude.{◌≡◌, ◌<◌, ◌^◌, ℕ, List, length};
ghost use Rattle.hall_events.specs.Reply as said;
ghost use Rattle.hall_http.specs.{Prelude.{Schema, Refusal, Content, reply_of, BodyKind}, Response.{response, response_of, HasResponse, IsResponse}};

use crate::response::UNAVAILABLE;

/// Law: responses with the same octets have the same status, the same kind of body and the same body.
pub fn one_response()
    ensures { (status other : ℕ) (kind another : BodyKind) (body text : List ℕ) → status < 2 ^ 64 → other < 2 ^ 64
        → length body < 2 ^ 64 → length text < 2 ^ 64 → response status kind body ≡ response other another text
        → (status ≡ other) × (kind ≡ another) × (body ≡ text) }
{}

/// Law: each answer by HTTP has a response, an answer that a receipt keeps if its status is one of them.
pub fn answers_have_responses()
    ensures { (schema : Schema) (content : Content) → HasResponse content → IsResponse (reply_of schema content) }
{}

/// Law: [`UNAVAILABLE`] is the response of the refusal Unavailable.
pub fn unavailable_is_a_refusal()
    ensures { (schema : Schema) → response_of (reply_of schema (said.refused Refusal.Unavailable)) ≡ UNAVAILABLE.now }
{}
