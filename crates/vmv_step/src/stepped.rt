use vmv_zone::Zone;

/// What a statement makes of a state.
#[derive(Clone, Copy)]
pub struct Stepped {
    /// The state after the statement, where it passed.
    pub zone: Zone,
    /// Whether the statement's site isn't proved to pass.
    pub unproved: bool,
}
