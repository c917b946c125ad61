// A confirmed defender that gives, day by day.
// It gives to the challenger's record, or sets aside for it where it has the right of first refusal.
#[derive(Clone, Copy, Debug, PartialEq, Eq)]
pub struct Giving {
    pub minute: u32,
    pub right: bool,
    pub aref: u32,
    pub place: usize,
    pub challenger: usize,
    pub start: u32,
    pub days: u32,
}
