// How far a session is: the packet it expects next, and the highest it knows of.
ghost use Rattle.std.specs.Prelude.{◌≡◌, ◌+◌, ◌≤◌, max, if◌then◌else◌, nat_eq};

use crate::check::Checked;

#[derive(Clone, Copy, Debug, PartialEq, Eq)]
pub(crate) struct Progress {
    pub(crate) next: u32,
    pub(crate) top: u32,
    ghost begun: { 1 ≤ next },
    ghost numbered: { top ≤ 4294967294 },
}

impl Progress {
    // After an M packet: the expected one alone moves next.
    pub(crate) fn after(self, checked: Checked) -> Progress
        ensures next { result.next ≡ (if nat_eq checked.entry.packet.header.number self.next then self.next + 1 else self.next) }
        ensures top { result.top ≡ max self.top checked.entry.packet.header.number }
    {
        let number = checked.packet.header().number;
        let mut after = self.heard(checked);
        if number == self.next {
            after.next += 1;
        }
        after
    }

    // After a heartbeat.
    pub(crate) fn heard(self, checked: Checked) -> Progress
        ensures next { result.next ≡ self.next }
        ensures top { result.top ≡ max self.top checked.entry.packet.header.number }
    {
        let number = checked.packet.header().number;
        Progress {
            next: self.next,
            top: self.top.max(number),
        }
    }
}
