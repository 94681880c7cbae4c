// What the lines of a case file have set.
use profile::Profile;
use state::State;
use tally::Tally;

#[derive(Clone, Copy)]
pub struct Setup {
    pub profile: Option<Profile>,
    // the lent flash is the first so many bytes of the flash array
    pub flash: Option<usize>,
    pub state: State,
    pub tally: Tally,
    // the lent output is the first so many bytes of the output array
    pub room: usize,
}

impl Setup {
    // A file starts with the fresh state, an output of 256 bytes and a tally of zeros.
    pub fn start() -> Self {
        Self {
            profile: None,
            flash: None,
            state: State::fresh(),
            tally: Tally::cleared(),
            room: 256,
        }
    }

    // The profile and the length of the flash, once both are set.
    pub fn board(&self) -> Option<(Profile, usize)> {
        self.profile.zip(self.flash)
    }
}
