//! What reading a device's file comes to.

ghost use Rattle.std.specs.Prelude.{◌≡◌, ◌≢◌, ℕ, List};
ghost use Rattle.ss_device.specs.Device.{DeviceView, IsNew, IsSameDevice};
ghost use Rattle.ss_device.specs.Forms.{HasDeviceForm};
ghost use Rattle.ss_device.specs.Writing.{device_text};
ghost use Rattle.ss_device_file.specs.Files.{IsFileOf, IsFront, IsWhyNoDevice, IsWhyNoFront};
ghost use Rattle.ss_device_file.specs.Fresh.{fresh_text};
ghost use Rattle.ss_device_file.specs.declared.faults.DeviceFault.{DeviceFault};
ghost use Rattle.ss_device_file.specs.declared.faults.DeviceFault.TheVariants.{Memory};
ghost use Rattle.ss_device_file.specs.declared.faults.LinesFault.{LinesFault};
ghost use Rattle.ss_device_file.specs.declared.faults.LinesFault.TheVariants.{Memory as NoRoom};
ghost use Rattle.ss_device_file.specs.declared.front.Front.{Front as FrontView};

/// What is written for a device is a file of that device, its times included.
pub fn written_is_read()
    ensures { (d : DeviceView) → HasDeviceForm d → IsFileOf (device_text d) d }
{}

/// A file of a device is refused for want of memory alone.
pub fn file_is_not_refused()
    ensures { (text : List ℕ) (d : DeviceView) (fault : DeviceFault) → IsFileOf text d → IsWhyNoDevice text fault
        → fault ≡ Memory }
{}

/// Want of memory aside, no text is refused for two causes: each refusal names the one line, or the one item, that it
/// has to.
pub fn one_refusal()
    ensures { (text : List ℕ) (one other : DeviceFault) → IsWhyNoDevice text one → IsWhyNoDevice text other → one ≢ Memory
        → other ≢ Memory → one ≡ other }
{}

/// Devices that are the same have one text, and a new one has these seven lines.
pub fn one_text()
    ensures same { (d e : DeviceView) → HasDeviceForm d → HasDeviceForm e → IsSameDevice d e → device_text d ≡ device_text e }
    ensures fresh { (d : DeviceView) → HasDeviceForm d → IsNew d → device_text d ≡ fresh_text }
{}

/// A text is a file of one device at most.
pub fn one_device()
    ensures { (text : List ℕ) (d e : DeviceView) → IsFileOf text d → IsFileOf text e → IsSameDevice d e }
{}

/// A text has one front of lines up to the end's, or it stops in one place, for want of memory aside.
pub fn one_front()
    ensures lines { (text : List ℕ) (f g : FrontView) → IsFront text f → IsFront text g
        → f.lines.items ≡ g.lines.items }
    ensures used { (text : List ℕ) (f g : FrontView) → IsFront text f → IsFront text g → f.used ≡ g.used }
    ensures unstopped { (text : List ℕ) (f : FrontView) (fault : LinesFault) → IsFront text f → IsWhyNoFront text fault
        → fault ≡ NoRoom }
    ensures stopped { (text : List ℕ) (one other : LinesFault) → IsWhyNoFront text one → IsWhyNoFront text other
        → one ≢ NoRoom → other ≢ NoRoom → one ≡ other }
{}
