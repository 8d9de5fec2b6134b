//! The 32 places of a queue, linked in two lists: those that wait, and those that are free.

ghost use Rattle.std.specs.Prelude.{◌≡◌, length, map, IfOk, IfSome};
ghost use Rattle.vmv_links.specs.Lists.{list_at};
ghost use Rattle.vmv_desk.specs.Queues.{numbers_in, number_at, place_in, IsQueue};

use std::alloc::{AllocError, Global};
use vmv_links::Links;

/// The list of the places that wait.
pub(crate) const PENDING: u32 = 0;

/// The list of the places that are free.
pub(crate) const FREE: u32 = 1;

/// The place of the first number that is this one, where one is.
pub(crate) fn place_of(numbers: &[u32], links: &Links, number: u32) -> Option<u32>
    requires { IsQueue numbers.now links.now }
    ensures place { result ≡ place_in numbers.now number (list_at links.now.lists 0) }
{
    let mut at = links.first(PENDING);
    for _step in 0..32u32 {
        let place = at?;
        if numbers[place as usize] == number {
            return Some(place);
        }
        at = links.next(place);
    }
    None
}

/// The numbers that wait, in their order. It fails where there is no memory.
pub(crate) fn waiting(alloc: Global, numbers: &[u32], links: &Links) -> Result<Vec<u32>, AllocError>
    requires { IsQueue numbers.now links.now }
    ensures { IfOk result (λ all. all.items ≡ numbers_in numbers.now links.now) }
{
    let mut all = Vec::new(alloc);
    let mut at = links.first(PENDING);
    for _step in 0..32u32 {
        let Some(place) = at else {
            break;
        };
        all.push(numbers[place as usize])?;
        at = links.next(place);
    }
    Ok(all)
}
