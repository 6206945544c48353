// The operations, and the shape that each has.
ghost use Rattle.std.specs.Prelude.{◌≡◌};
ghost use Rattle.rules.specs.Operations.{code_of, asked_of, address_of, value_of, shape_of, kind_of};

use crate::entry::GuestAddress;
use crate::kinds::Kind;

#[derive(Clone, Copy, PartialEq, Eq, Debug)]
pub enum Operation {
    Load(GuestAddress),
    Ll(GuestAddress),
    Store(GuestAddress, u32),
    Sc(GuestAddress, u32),
}

// What steps an operation has: a load has one, and takes no lock; the others have four (RULES 4.4, 4.5).
#[derive(Clone, Copy, PartialEq, Eq, Debug)]
pub enum Shape {
    Load,
    Locks(Locking),
}

#[derive(Clone, Copy, PartialEq, Eq, Debug)]
pub enum Locking {
    Ll,
    Store,
    Sc,
}

impl Operation {
    // The number that a core keeps, as C has it.
    pub fn code(self) -> u8
        ensures { result ≡ code_of self }
    {
        match self {
            Operation::Load(_) => 1,
            Operation::Ll(_) => 2,
            Operation::Store(_, _) => 3,
            Operation::Sc(_, _) => 4,
        }
    }

    // The operation that a number asks for, if there is one: a load and an ll look at no value.
    #[tactic(auto, unfolding(crate::specs::Operations::asked_of))]
    pub fn of(code: u8, address: GuestAddress, value: u32) -> Option<Operation>
        ensures { result ≡ asked_of code address value }
    {
        match code {
            1 => Some(Operation::Load(address)),
            2 => Some(Operation::Ll(address)),
            3 => Some(Operation::Store(address, value)),
            4 => Some(Operation::Sc(address, value)),
            _ => None,
        }
    }

    pub fn address(self) -> GuestAddress
        ensures { result ≡ address_of self }
    {
        match self {
            Operation::Load(a) | Operation::Ll(a) | Operation::Store(a, _) | Operation::Sc(a, _) =>
                a,
        }
    }

    pub fn value(self) -> u32
        ensures { result ≡ value_of self }
    {
        match self {
            Operation::Load(_) | Operation::Ll(_) => 0,
            Operation::Store(_, v) | Operation::Sc(_, v) => v,
        }
    }
}

impl Shape {
    // The shape of the operation that a core keeps as a number, if there is one.
    #[tactic(auto, unfolding(crate::specs::Operations::shape_of))]
    pub fn of(operation: u8) -> Option<Shape>
        ensures { result ≡ shape_of operation }
    {
        match operation {
            1 => Some(Shape::Load),
            2 => Some(Shape::Locks(Locking::Ll)),
            3 => Some(Shape::Locks(Locking::Store)),
            4 => Some(Shape::Locks(Locking::Sc)),
            _ => None,
        }
    }
}

// The kind of record that an operation's access step makes, and 0 where there is no such operation: an sc makes one of two.
#[tactic(auto, unfolding(crate::specs::Operations::kind_of))]
pub(crate) fn kind_of(operation: u8, passed: bool) -> u8
    ensures { result ≡ kind_of operation passed }
{
    match (operation, passed) {
        (1, _) => Kind::Load.number(),
        (2, _) => Kind::Ll.number(),
        (3, _) => Kind::Store.number(),
        (4, true) => Kind::Success.number(),
        (4, false) => Kind::Failure.number(),
        _ => 0,
    }
}
