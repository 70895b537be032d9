//! What a target names.
ghost use Rattle.std.specs.{Prelude.{◌≡◌, ◌==◌, ◌++◌, IfOk, IfSome, IsTrue, OnOk, Some, fold}, List.list_any, Str.bytes_eq};
ghost use Rattle.hall_http.specs.Resource.{routes, route_table, resource_of, method_of, with_route, IsSegment};

use matchit::{InsertError, Router};
use std::alloc::Global;

/// What a target names.
#[derive(Clone, Copy)]
pub(crate) enum Resource {
    Script,
    Report,
    Orders,
    Order,
    Machines,
    Machine,
    Commands,
}

impl Resource {
    /// The one method that it has.
    pub(crate) fn method(self) -> &'static str
        ensures { result.now ≡ method_of self }
    {
        match self {
            Resource::Script | Resource::Orders | Resource::Machines | Resource::Machine => "GET",
            Resource::Report | Resource::Order | Resource::Commands => "POST",
        }
    }
}

fn add_route(
    router: &mut Router<Resource>,
    route: &str,
    resource: Resource,
) -> Result<(), InsertError>
    ensures { OnOk result (router.new ≡ with_route router.old (route.now, resource)) }
{
    router.insert(route, resource)
}

fn add_routes(router: &mut Router<Resource>) -> Result<(), InsertError>
    ensures { OnOk result (router.new ≡ fold with_route router.old route_table) }
{
    add_route(router, "/ipxe/{mac}", Resource::Script)?;
    add_route(router, "/report/{number}/{token}", Resource::Report)?;
    add_route(router, "/orders", Resource::Orders)?;
    add_route(router, "/orders/{number}", Resource::Order)?;
    add_route(router, "/machines", Resource::Machines)?;
    add_route(router, "/machines/{id}", Resource::Machine)?;
    add_route(router, "/commands", Resource::Commands)
}

// The router of the hall's routes.
#[tactic(auto, unfolding(crate::specs::Resource::routes))]
fn router(alloc: Global) -> Result<Router<Resource>, InsertError>
    ensures { IfOk result (λ router. router ≡ routes) }
{
    let mut router = Router::new(alloc);
    add_routes(&mut router)?;
    Ok(router)
}

fn has_slash(text: &[u8]) -> bool
    ensures { result ≡ list_any (λ octet. octet == 47) text.now }
{
    text.iter().any(|octet| *octet == b'/')
}

// Whether a text is a segment: it isn't empty and has no slash.
#[tactic(auto, using(crate::proofs::RouteLemmas::slash_is))]
fn is_segment(text: &[u8]) -> bool
    ensures { IsTrue result → IsSegment text.now }
{
    !text.is_empty() && !has_slash(text)
}

fn is_same(one: &[u8], other: &[u8]) -> bool
    ensures { result ≡ bytes_eq one.now other.now }
{
    one == other
}

// What follows a prefix.
fn after_prefix<'t>(target: &'t [u8], prefix: &[u8]) -> Option<&'t [u8]>
    ensures { IfSome result (λ rest. target.now ≡ prefix.now ++ rest.now) }
{
    target.strip_prefix(prefix)
}

// What the targets name that are asked for most, without a router.
#[tactic(auto, using(crate::specs::ResourceLaws::script_is, crate::proofs::RouteLemmas::commands_is))]
fn known(target: &[u8]) -> Option<Resource>
    ensures { IfSome result (λ resource. resource_of target.now ≡ Some resource) }
{
    if is_same(target, b"/commands".as_slice()) {
        return Some(Resource::Commands);
    }
    match after_prefix(target, b"/ipxe/".as_slice()) {
        Some(rest) if is_segment(rest) => Some(Resource::Script),
        _ => None,
    }
}

fn routed(alloc: Global, target: &str) -> Result<Option<Resource>, InsertError>
    ensures { IfOk result (λ resource. resource ≡ resource_of target.now) }
{
    let router = router(alloc)?;
    Ok(router.at(target).ok().map(|found| *found.value))
}

/// What a target names, if it has a route. The error is want of memory.
pub(crate) fn resource_of(alloc: Global, target: &str) -> Result<Option<Resource>, InsertError>
    ensures { IfOk result (λ resource. resource ≡ resource_of target.now) }
{
    match known(target.as_bytes()) {
        Some(resource) => Ok(Some(resource)),
        None => routed(alloc, target),
    }
}
