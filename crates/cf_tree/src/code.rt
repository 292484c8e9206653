//! Why a handler refuses.
ghost use Rattle.std.specs.Prelude.{◌≡◌, ◌≢◌, IfSome, IfNone, Some, None};
ghost use Rattle.cf_tree.specs.Codes.{number_of, code_of, name_of};

use std::fmt;

/// Why a handler refuses a request: fourteen of the error codes of the CloudFormation handler
/// contract ("Resource type handler contract", handler error codes).
#[derive(Clone, Copy, Debug, PartialEq, Eq)]
pub enum Code {
    /// A property that was to change can't be updated.
    NotUpdatable,
    /// The request is out of form.
    InvalidRequest,
    /// The caller may not do this.
    AccessDenied,
    /// The caller's credentials are not valid.
    InvalidCredentials,
    /// A resource with this identifier is there already.
    AlreadyExists,
    /// No such resource is there.
    NotFound,
    /// Another change of the resource is under way.
    ResourceConflict,
    /// Too many requests came.
    Throttling,
    /// A limit of the service is reached.
    ServiceLimitExceeded,
    /// The resource didn't become stable in time.
    NotStabilized,
    /// The service failed for another reason.
    GeneralServiceException,
    /// The service failed inside.
    ServiceInternalError,
    /// The network failed.
    NetworkFailure,
    /// The handler failed inside.
    InternalFailure,
}

impl Code {
    /// The code's number in the journal, 1 to 14 in the order of the variants.
    pub fn number(self) -> u8
        ensures { result ≡ number_of self }
    {
        match self {
            Code::NotUpdatable => 1,
            Code::InvalidRequest => 2,
            Code::AccessDenied => 3,
            Code::InvalidCredentials => 4,
            Code::AlreadyExists => 5,
            Code::NotFound => 6,
            Code::ResourceConflict => 7,
            Code::Throttling => 8,
            Code::ServiceLimitExceeded => 9,
            Code::NotStabilized => 10,
            Code::GeneralServiceException => 11,
            Code::ServiceInternalError => 12,
            Code::NetworkFailure => 13,
            Code::InternalFailure => 14,
        }
    }

    /// The code with a number, and None exactly where no code has it.
    pub fn from_number(number: u8) -> Option<Code>
        ensures value { result ≡ code_of number }
        ensures found { IfSome result (λ c. number_of c ≡ number) }
        ensures missing { IfNone result ((c : Code) → number_of c ≢ number) }
    {
        match number {
            1 => Some(Code::NotUpdatable),
            2 => Some(Code::InvalidRequest),
            3 => Some(Code::AccessDenied),
            4 => Some(Code::InvalidCredentials),
            5 => Some(Code::AlreadyExists),
            6 => Some(Code::NotFound),
            7 => Some(Code::ResourceConflict),
            8 => Some(Code::Throttling),
            9 => Some(Code::ServiceLimitExceeded),
            10 => Some(Code::NotStabilized),
            11 => Some(Code::GeneralServiceException),
            12 => Some(Code::ServiceInternalError),
            13 => Some(Code::NetworkFailure),
            14 => Some(Code::InternalFailure),
            _ => None,
        }
    }

    /// The code's name, as reports print it.
    pub fn name(self) -> &'static str
        ensures { result.now ≡ name_of self }
    {
        match self {
            Code::NotUpdatable => "NotUpdatable",
            Code::InvalidRequest => "InvalidRequest",
            Code::AccessDenied => "AccessDenied",
            Code::InvalidCredentials => "InvalidCredentials",
            Code::AlreadyExists => "AlreadyExists",
            Code::NotFound => "NotFound",
            Code::ResourceConflict => "ResourceConflict",
            Code::Throttling => "Throttling",
            Code::ServiceLimitExceeded => "ServiceLimitExceeded",
            Code::NotStabilized => "NotStabilized",
            Code::GeneralServiceException => "GeneralServiceException",
            Code::ServiceInternalError => "ServiceInternalError",
            Code::NetworkFailure => "NetworkFailure",
            Code::InternalFailure => "InternalFailure",
        }
    }
}

impl fmt::Display for Code {
    ghost output = { λ c. Some (name_of c) };

    fn fmt<W: fmt::Write>(&self, f: &mut fmt::Formatter<W>) -> fmt::Result {
        f.write_str(self.name())
    }
}
