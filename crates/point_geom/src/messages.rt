//! The texts of errors and axes.
use crate::{Axis, CuboidError, OutOfRange};
use std::fmt::{Display, Error, Formatter, Write};

impl Display for Axis {
    fn fmt<W: Write>(&self, f: &mut Formatter<W>) -> Result<(), Error> {
        f.write_str(match self {
            Axis::X => "x",
            Axis::Y => "y",
            Axis::Z => "z",
        })
    }
}

impl Display for OutOfRange {
    fn fmt<W: Write>(&self, f: &mut Formatter<W>) -> Result<(), Error> {
        let OutOfRange { axis, value } = self;
        write!(f, "{axis} is {value} mm, which is out of range")
    }
}

impl Display for CuboidError {
    fn fmt<W: Write>(&self, f: &mut Formatter<W>) -> Result<(), Error> {
        match self {
            CuboidError::OutOfRange { axis, value } => {
                write!(f, "{axis} is {value} mm, which is out of range")
            }
            CuboidError::Inverted { axis } => write!(f, "hi is below lo on {axis}"),
        }
    }
}
