//! How far the feeds of a lane are read.

ghost use Rattle.std.specs.Prelude.{◌≡◌, ◌+◌, ◌<◌, ◌^◌, ℕ};
ghost use Rattle.un_script.specs.Cursors.{advanced, cursor_at, nothing_read};

/// How many frames of the feed of each of a lane's four senders, 0 to 3, were consumed: taken or refused.
#[derive(Clone, Copy, Debug)]
pub struct Cursors {
    first: u64,
    second: u64,
    third: u64,
    fourth: u64,
}

impl Cursors {
    /// No frame of any sender is consumed.
    pub fn start() -> Cursors
        ensures { result ≡ nothing_read }
    {
        Cursors {
            first: 0,
            second: 0,
            third: 0,
            fourth: 0,
        }
    }

    /// How many frames of this sender's feed are consumed, which is the index in it of the next one. It is 0 of a sender past 3,
    /// which has no feed.
    pub fn at(&self, sender: u32) -> u64
        ensures { result ≡ cursor_at self.now sender }
    {
        match sender {
            0 => self.first,
            1 => self.second,
            2 => self.third,
            3 => self.fourth,
            _ => 0,
        }
    }

    /// One frame more of this sender's feed is consumed. For a sender past 3 nothing changes.
    pub fn advance(&mut self, sender: u32)
        requires { cursor_at self.old sender + 1 < 2 ^ 64 }
        ensures { self.new ≡ advanced sender self.old }
    {
        match sender {
            0 => self.first += 1,
            1 => self.second += 1,
            2 => self.third += 1,
            3 => self.fourth += 1,
            _ => {}
        }
    }
}
