//! Requests that ask for a list.
ghost use Rattle.std.specs.Prelude.{◌≡◌, IfSome};
ghost use Rattle.serve_sockets.specs.Listing.{AsksForList, list_bearer};

use hall_events::Event;
use hall_http::Request;
use hall_types::Digest;

// The digest of the token with which an event asks for all machines or all orders.
fn list_bearer(event: &Event) -> Option<Digest>
    ensures { result ≡ list_bearer event.now }
{
    match event {
        Event::Machines { bearer } | Event::Orders { bearer } => *bearer,
        _ => None,
    }
}

/// The digest of the token with which a request asks for all machines or all orders, if it does.
pub(crate) fn bearer_of_list(request: &Request) -> Option<Digest>
    ensures { IfSome result (AsksForList request.now) }
{
    match request.asked() {
        Ok(asked) => {
            let bearer = list_bearer(asked.event());
            drop(asked);
            bearer
        }
        Err(_) => None,
    }
}
