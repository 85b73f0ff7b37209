// The exchange, as C drives it.
ghost use Rattle.exchange.specs.Table.{FreshTable};
ghost use Rattle.sconcetoad.specs.Arrival.{ArrivedBy};

use exchange::{Table, fresh_table};

// The number of the refusal, 0 where the component is answered; how many octets the reply has; and the next table.
#[repr(C)]
#[derive(Clone, Copy)]
pub struct Arrival {
    pub refusal: u8,
    pub count: usize,
    pub table: Table,
}

// The table of a new access.
#[unsafe(no_mangle)]
pub extern "C" fn sconcetoad_fresh_table() -> Table
    ensures { FreshTable result }
{
    fresh_table()
}

// What `table` becomes when `component` arrives, with the reply at the start of `out`.
#[unsafe(no_mangle)]
pub extern "C" fn sconcetoad_arrive(
    table: Table,
    access: &[u8],
    component: &[u8],
    out: &mut [u8],
) -> Arrival
    ensures { ArrivedBy access.now table component.now out.old result out.new }
{
    let arrived = table.arrive(access, component, out);
    let (refusal, count) = match arrived.outcome {
        Ok(answered) => (0, answered.count),
        Err(refusal) => (u8::from(refusal), 0),
    };
    Arrival {
        refusal,
        count,
        table: arrived.table,
    }
}
