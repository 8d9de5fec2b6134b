ghost use Rattle.std.specs.Prelude.{◌≡◌, IfOk};
ghost use Rattle.vmv_routes.specs.Asked.{is_method, caller_of, asked_with, asked_at, asked_of};

use crate::aim::{Aim, aim_of};
use crate::body::change_of;
use crate::path::{label_in, path_of};
use crate::route::{Route, route_of};
use std::alloc::{AllocError, Global};
use vmv_head::{Head, Method, Refusal};
use vmv_keeper::{Command, Label};

fn is_method(called: &[u8], method: Method) -> bool
    ensures { result ≡ is_method called.now method }
{
    called == method.name().as_bytes()
}

/// The caller, where one line names him.
fn caller_of(head: &Head<'_>) -> Option<Label>
    ensures { result ≡ caller_of head.now.members head.now.member.now }
{
    if head.members == 1 {
        label_in(head.member)
    } else {
        None
    }
}

/// The command of a caller, where the body has the route's fields.
fn asked_with(
    alloc: Global,
    caller: Label,
    body: &[u8],
    aim: Aim,
) -> Result<Result<Command, Refusal>, AllocError>
    ensures { IfOk result (λ asked. asked ≡ asked_with caller body.now aim) }
{
    match aim {
        Aim::Ask(query) => Ok(Ok(Command::Ask { caller, query })),
        Aim::Change(draft) => match change_of(alloc, draft, caller, body)? {
            Some(command) => Ok(Ok(command)),
            None => Ok(Err(Refusal::BodyUnread)),
        },
    }
}

/// What is asked for at a route.
fn asked_at(
    alloc: Global,
    head: &Head<'_>,
    path: &[u8],
    body: &[u8],
    route: Route,
) -> Result<Result<Command, Refusal>, AllocError>
    ensures { IfOk result (λ asked. asked ≡ asked_at head.now.method.now path.now head.now.members head.now.member.now body.now route) }
{
    let method = route.method();
    if !is_method(head.method, method) {
        return Ok(Err(Refusal::OtherMethod { allowed: method }));
    }
    let Some(caller) = caller_of(head) else {
        return Ok(Err(Refusal::MemberUnread));
    };
    match aim_of(route, path) {
        Some(aim) => asked_with(alloc, caller, body, aim),
        None => Ok(Err(Refusal::PartUnread)),
    }
}

/// The command that a request asks for, by its head and its body, or the first cause for which it is refused.
/// It fails for want of memory alone.
pub fn command_of(
    alloc: Global,
    head: &Head<'_>,
    body: &[u8],
) -> Result<Result<Command, Refusal>, AllocError>
    ensures { IfOk result (λ asked. asked ≡ asked_of head.now.method.now head.now.target.now head.now.members head.now.member.now body.now) }
{
    let path = path_of(head.target);
    match route_of(alloc, path)? {
        Some(route) => asked_at(alloc, head, path, body, route),
        None => Ok(Err(Refusal::NoRoute)),
    }
}
