//! What the driver of a net names.

ghost use Rattle.history_law.specs.Drivers.{DriverIsElement, DriverIsReadBit, ElementIsDriver, InputBitIsInput, InputIsInputBit, ReadBitIsDriver};

/// An element with a net as its output is what drives that net.
pub fn element_is_driver()
    ensures { ElementIsDriver }
{}

/// An element that is named as what drives a net has that net as its output.
pub fn driver_is_element()
    ensures { DriverIsElement }
{}

/// A bit of a read port is what drives its net.
pub fn read_bit_is_driver()
    ensures { ReadBitIsDriver }
{}

/// A read bit that is named as what drives a net drives that net.
pub fn driver_is_read_bit()
    ensures { DriverIsReadBit }
{}

/// A bit of an input port is driven from outside.
pub fn input_bit_is_input()
    ensures { InputBitIsInput }
{}

/// A net that is driven from outside is a bit of an input port.
pub fn input_is_input_bit()
    ensures { InputIsInputBit }
{}
