// What a component says, as C is told.
ghost use Rattle.std.specs.Prelude.{◌≡◌};
ghost use Rattle.sconcetoad.specs.Said.{nothing_asked, SaidBy};

use requests::{Heard, Request, argument_at, blank_request, hear};

// What a component says: at which row of document 01's table reading stops, 6 where it has an identifier and an operation; these, 0 where they were
// not read; and whether it is a request that can be read, and which.
#[repr(C)]
#[derive(Clone, Copy)]
pub struct Said {
    pub row: u8,
    pub asks: u8,
    pub identifier: i16,
    pub operation: i16,
    pub request: Request,
}

// It is no request that can be read.
fn nothing_asked(row: u8, identifier: i16, operation: i16) -> Said
    ensures { result ≡ nothing_asked row identifier operation }
{
    let request = blank_request();
    Said {
        row,
        asks: 0,
        identifier,
        operation,
        request,
    }
}

// What `component` says.
#[unsafe(no_mangle)]
pub extern "C" fn sconcetoad_said(component: &[u8]) -> Said
    ensures { SaidBy component.now result }
{
    match hear(component) {
        Heard::NotOne => nothing_asked(1, 0, 0),
        Heard::Silent => nothing_asked(2, 0, 0),
        Heard::OtherTag => nothing_asked(3, 0, 0),
        Heard::NoIdentifier => nothing_asked(4, 0, 0),
        Heard::NoOperation { identifier } => nothing_asked(5, identifier, 0),
        Heard::Asks {
            identifier,
            operation,
            at,
            end,
        } => {
            let Some(request) = argument_at(component, at, end, operation) else {
                return nothing_asked(6, identifier, operation.value);
            };
            Said {
                row: 6,
                asks: 1,
                identifier,
                operation: operation.value,
                request,
            }
        }
    }
}
