// The errors of registration (document 01, "Replies, in the order checked"), by the names that EN 300 207-1 gives them.
ghost use Rattle.rules.specs.Error.{ErrorNo};

// The error that a request earns.
#[derive(Clone, Copy, PartialEq, Eq, Debug)]
pub enum RequestError {
    NotSubscribed,
    NotAvailable,
    InvalidServedUserNr,
    BasicServiceNotProvided,
    ResourceUnavailable,
    InvalidDivertedToNr,
    SpecialServiceNr,
    DiversionToServedUserNr,
    NotActivated,
}

// Its value in a return error component.
impl From<RequestError> for u8 {
    ghost from_gives = { ErrorNo };

    fn from(error: RequestError) -> u8 {
        match error {
            RequestError::NotSubscribed => 0,
            RequestError::NotAvailable => 3,
            RequestError::InvalidServedUserNr => 6,
            RequestError::BasicServiceNotProvided => 8,
            RequestError::ResourceUnavailable => 11,
            RequestError::InvalidDivertedToNr => 12,
            RequestError::SpecialServiceNr => 14,
            RequestError::DiversionToServedUserNr => 15,
            RequestError::NotActivated => 46,
        }
    }
}
