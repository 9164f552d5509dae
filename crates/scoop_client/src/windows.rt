//! The windows of all handlers of a block.

ghost use Rattle.std.specs.Prelude.{◌≡◌, ◌||◌, nat_le, not, MatchOption, IfOk, IfSome, Some, None, map, false};
ghost use Rattle.std.specs.List.{list_all};
ghost use Rattle.scoop_client.specs.Window.{IsPlaceOf, IsNowhere, HasRoom, window_of, at_window, fresh_window, with_entry, with_end, acknowledged, is_ended};
ghost use Rattle.scoop_client.specs.Window.{is_full, all_over, is_lowest_full, lowest_full};

use crate::window::Window;
use scoop_message::{Entry, HandlerId};
use std::alloc::{AllocError, Allocator};

/// A window without entries for each handler.
pub(crate) fn fresh_windows<A: Allocator + Clone>(
    alloc: &A,
    handlers: &[HandlerId],
) -> Result<Vec<Window<A>, A>, AllocError>
    ensures { IfOk result (λ v. v.items ≡ map fresh_window handlers.now) }
{
    let mut windows = Vec::with_capacity(alloc.clone()?, handlers.len())?;
    for handler in handlers {
        windows.push(Window::new(alloc.clone()?, *handler)?)?;
    }
    Ok(windows)
}

// The place of the handler's window.
fn place_of<A: Allocator>(windows: &[Window<A>], handler: HandlerId) -> Option<usize>
    ensures { MatchOption result (IsNowhere handler windows.now) (IsPlaceOf handler windows.now) }
{
    for (i, window) in windows.iter().enumerate() {
        if window.handler() == handler {
            return Some(i);
        }
    }
    None
}

/// The handler's window.
pub(crate) fn window_of<A: Allocator>(
    windows: &[Window<A>],
    handler: HandlerId,
) -> Option<&Window<A>>
    ensures { MatchOption result (window_of handler windows.now ≡ None) (λ l. window_of handler windows.now ≡ Some l.now) }
{
    match place_of(windows, handler) {
        Some(place) => Some(&windows[place]),
        None => None,
    }
}

/// Logs a call or a query at the handler, whose window has room and whose numbers aren't used up.
pub(crate) fn log_at<A: Allocator>(windows: &mut [Window<A>], handler: HandlerId, entry: Entry)
    requires { IfSome (window_of handler windows.old) HasRoom }
    ensures { windows.new ≡ at_window handler (with_entry entry) windows.old }
{
    if let Some(place) = place_of(windows, handler) {
        let window = &mut windows[place];
        window.log(entry);
    }
}

/// Acknowledges the entries of the handler up to this number.
pub(crate) fn acknowledge_at<A: Allocator>(
    windows: &mut [Window<A>],
    handler: HandlerId,
    number: u32,
)
    ensures { windows.new ≡ at_window handler (acknowledged number) windows.old }
{
    if let Some(place) = place_of(windows, handler) {
        let window = &mut windows[place];
        window.acknowledge(number);
    }
}

/// Whether the block's Ends are logged.
pub(crate) fn is_ended<A: Allocator>(windows: &[Window<A>]) -> bool
    ensures { result ≡ is_ended windows.now }
{
    windows.iter().any(|window| window.is_ended())
}

/// Whether each End is acknowledged.
pub(crate) fn all_over<A: Allocator>(windows: &[Window<A>]) -> bool
    ensures { result ≡ all_over windows.now }
{
    windows.iter().all(|window| window.is_over())
}

// Whether this window is full, and none at a lower handler is.
fn is_lowest_full<A: Allocator>(windows: &[Window<A>], window: &Window<A>) -> bool
    ensures { result ≡ is_lowest_full windows.now window.now }
{
    window.is_full() && no_full_below(windows, window.handler())
}

fn no_full_below<A: Allocator>(windows: &[Window<A>], handler: HandlerId) -> bool
    ensures { result ≡ list_all (λ x. not (is_full x) || nat_le handler.0 x.handler.0) windows.now }
{
    windows.iter().all(|window| !window.is_full() || handler.0 <= window.handler().0)
}

/// The lowest handler whose window is full.
pub(crate) fn lowest_full<A: Allocator>(windows: &[Window<A>]) -> Option<HandlerId>
    ensures { result ≡ lowest_full windows.now }
{
    for window in windows {
        if is_lowest_full(windows, window) {
            return Some(window.handler());
        }
    }
    None
}

/// Logs an End at each handler.
pub(crate) fn end_all<A: Allocator>(windows: &mut [Window<A>])
    requires room { lowest_full windows.old ≡ None }
    requires open { is_ended windows.old ≡ false }
    ensures { windows.new ≡ map with_end windows.old }
{
    for window in windows.iter_mut() {
        window.end();
    }
}
