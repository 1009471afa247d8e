// The gate in which two threads meet, live or on a tape.

use ls_lent_images::Meeting;
use ls_live::Gate;

/// A meeting as a gate.
#[derive(Drop)]
pub struct AtMeeting {
    pub meeting: Meeting,
}

impl Gate for AtMeeting {
    fn pass(&self, thread: usize) {
        self.meeting.pass_thread(thread);
    }
}
