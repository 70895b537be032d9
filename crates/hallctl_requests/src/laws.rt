//! What holds of requests.
ghost use Rattle.std.specs.Prelude.{◌≡◌, ◌↔◌, ℕ, List, Ok, Result};
ghost use Rattle.hallctl_requests.specs.{Prelude.{Event, HttpFault, Answers, IsEvent}, Request.{Question, IsAuthority, IsBearerToken, IsSendable, event_of, request_of}};

/// Law: requests of one client have equal octets if and only if they ask the same, and the desk reads each as
/// what it asks.
pub fn one_request()
    ensures read { (authority token : List ℕ) (question : Question) → IsAuthority authority → IsBearerToken token → IsSendable question
        → (result : Result Event HttpFault) → IsEvent (request_of authority token question) result → Answers result (Ok (event_of token question)) }
    ensures one { (authority token : List ℕ) (one other : Question) → IsAuthority authority → IsBearerToken token → IsSendable one → IsSendable other
        → (request_of authority token one ≡ request_of authority token other) ↔ (one ≡ other) }
{}
