//! Reading a device's file: lines that people can read, exactly in the form in which they are written. It reads the
//! lines, finds the items' places and gives the device; it stands on ss_device. Its contracts: exactly the files of the
//! grammar are read, each as the device that it tells, and each refusal names the first line, or the first item, that
//! is wrong.
#![tactic(auto)]

mod cuts;
mod devices;
mod faults;
mod front;
mod grammar;
mod items;
mod known;
mod laws;
mod lines;
mod parts;
mod plants;
mod reading;
mod single;
mod texts;
mod values;
mod walk;

pub use devices::device_of;
pub use faults::{DeviceFault, LinesFault};
pub use front::{Front, read_front};
pub use laws::{
    file_is_not_refused, one_device, one_front, one_refusal, one_text, written_is_read,
};
pub use lines::{ItemLine, Line, Version};
pub use reading::{read_device, read_written};
pub use single::read_line;
