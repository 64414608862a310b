//! What a run of a program shows to the outside.

/// The number of a cost label. Labels are numbered from 0 by their place in the annotated source.
#[derive(Clone, Copy, Debug, PartialEq, Eq)]
pub struct Label(pub u16);

/// One of the four ports of the MCS-51 (special registers 80H, 90H, A0H and B0H).
#[derive(Clone, Copy, Debug, PartialEq, Eq)]
pub enum Port {
    P0,
    P1,
    P2,
    P3,
}

impl Port {
    ghost use Rattle.std.specs.Prelude.{◌≡◌, ◌<◌};
    ghost use Rattle.cerco_base.specs.Ports.{port_number};

    /// Its number, 0 to 3.
    pub fn number(self) -> u8
        ensures value { result ≡ port_number self }
        ensures below { result < 4 }
    {
        match self {
            Port::P0 => 0,
            Port::P1 => 1,
            Port::P2 => 2,
            Port::P3 => 3,
        }
    }
}

/// Something that a run does and that can be seen from outside.
#[derive(Clone, Copy, Debug, PartialEq, Eq)]
pub enum Event {
    /// A cost label is passed.
    Label(Label),
    /// The pins of a port are read and show this byte.
    Read(Port, u8),
    /// This byte is written to the latch of a port.
    Write(Port, u8),
}

/// A fault of the meaning of a source, at which its run has no further meaning.
#[derive(Clone, Copy, Debug, PartialEq, Eq)]
pub enum FaultKind {
    /// A scalar is read that was never set.
    Unset,
    /// A null pointer is used, a pointer leaves its variable, or it is used at a place of another
    /// type.
    Outside,
    /// A pointer to a variable that is no more is used other than by copying it.
    Dead,
    /// The right operand of `/` or `%` is 0.
    Zero,
    /// Two pointers are compared whose comparison has no meaning.
    Compare,
}
