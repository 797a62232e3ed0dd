// How a solving call ends, and the codes of all ends.
ghost use Rattle.std.specs.Prelude.{◌≡◌, Ok};
ghost use Rattle.c_counts.specs.Ends.{end_code, fault_code, fault_place, list_code, list_place};

use crate::fault::Fault;
use crate::info::CountsInfo;
use count_checker::ListFault;

/// How a search ended.
#[derive(Clone, Copy, PartialEq, Eq)]
pub enum End {
    /// With a best plan.
    Best,
    /// Rows lack: no plan exists.
    RowsLack,
    /// Columns lack: no plan exists.
    ColumnsLack,
    /// The budget is spent.
    Stopped,
    /// The search found nothing that the checkers take.
    Undecided,
}

/// The code of an end.
pub fn code_of_end(end: End) -> i32
    ensures { result ≡ end_code (Ok end) }
{
    match end {
        End::Best => 0,
        End::RowsLack => 1,
        End::ColumnsLack => 2,
        End::Stopped => 16,
        End::Undecided => 17,
    }
}

// The code of a fault of the lists.
fn list_code(fault: ListFault) -> i32
    ensures { result ≡ list_code fault }
{
    match fault {
        ListFault::Size => 6,
        ListFault::Length => 7,
        ListFault::Row(_) => 8,
        ListFault::Order(_) => 9,
        ListFault::Column(_) => 10,
        ListFault::Group(_) => 11,
        ListFault::RowCounts(_) => 12,
        ListFault::ColumnCounts(_) => 13,
        ListFault::Cost(_) => 14,
    }
}

// Records the place of a fault of the lists, if it has one.
fn list_place(fault: ListFault, info: &mut CountsInfo)
    ensures { info.new ≡ record info.old { place = list_place info.old.place fault } }
{
    if let ListFault::Row(place)
    | ListFault::Order(place)
    | ListFault::Column(place)
    | ListFault::Group(place)
    | ListFault::RowCounts(place)
    | ListFault::ColumnCounts(place)
    | ListFault::Cost(place) = fault
    {
        info.place = place as u64;
    }
}

/// The code of a fault. Records its place, if it has one.
pub fn refuse(fault: Fault, info: &mut CountsInfo) -> i32
    ensures code { result ≡ fault_code fault }
    ensures place { info.new ≡ record info.old { place = fault_place info.old.place fault } }
{
    match fault {
        Fault::Sense => 3,
        Fault::Dense => 4,
        Fault::Buffer => 5,
        Fault::List(fault) => {
            list_place(fault, info);
            list_code(fault)
        }
        Fault::Memory => 15,
    }
}
