ghost use Rattle.std.specs.Prelude.{◌≡◌};
ghost use Rattle.serde_json.specs.View.{members_view};
ghost use Rattle.cf_template.specs.Functions.{function_named, has_function, is_declared, is_pseudo, is_unsupported};

use crate::words::is_function;
use cf_tree::Params;
use serde_json::{Map, Value};

/// The functions of templates (template reference, intrinsic functions and condition functions).
#[derive(Clone, Copy)]
pub enum Function {
    Ref,
    GetAtt,
    Sub,
    Join,
    Split,
    Select,
    FindInMap,
    If,
    ImportValue,
    Base64,
    Equals,
    Not,
    And,
    Or,
    /// One that CloudFormation knows, and that isn't taken.
    Unsupported,
    /// A name that begins with `Fn::` and is no function's.
    Unknown,
}

/// The function of a name.
pub(crate) fn function_named(name: &str) -> Function
    ensures { result ≡ function_named name.now }
{
    match name {
        "Ref" => Function::Ref,
        "Fn::GetAtt" => Function::GetAtt,
        "Fn::Sub" => Function::Sub,
        "Fn::Join" => Function::Join,
        "Fn::Split" => Function::Split,
        "Fn::Select" => Function::Select,
        "Fn::FindInMap" => Function::FindInMap,
        "Fn::If" => Function::If,
        "Fn::ImportValue" => Function::ImportValue,
        "Fn::Base64" => Function::Base64,
        "Fn::Equals" => Function::Equals,
        "Fn::Not" => Function::Not,
        "Fn::And" => Function::And,
        "Fn::Or" => Function::Or,
        _ => {
            if is_unsupported(name) {
                Function::Unsupported
            } else {
                Function::Unknown
            }
        }
    }
}

fn is_unsupported(name: &str) -> bool
    ensures { result ≡ is_unsupported name.now }
{
    matches!(
        name,
        "Fn::Transform" | "Fn::GetAZs" | "Fn::Cidr" | "Fn::Length" | "Fn::ToJsonString"
    ) || name.as_bytes().starts_with(b"Fn::ForEach")
}

/// Whether a pseudo parameter that has a value has that name.
pub(crate) fn is_pseudo(name: &str) -> bool
    ensures { result ≡ is_pseudo name.now }
{
    matches!(
        name,
        "AWS::AccountId"
            | "AWS::NotificationARNs"
            | "AWS::Partition"
            | "AWS::Region"
            | "AWS::URLSuffix"
            | "AWS::StackName"
            | "AWS::StackId"
    )
}

/// Whether the template declares a parameter of that name.
pub(crate) fn is_declared(params: &Params, name: &str) -> bool
    ensures { result ≡ is_declared params.now name.now }
{
    for param in params.as_slice() {
        if param.name.is(name) {
            return true;
        }
    }
    false
}

/// Whether an object is a function: it has a member named `Ref`, or one with a name that begins with `Fn::`.
pub(crate) fn has_function(members: &Map<String, Value>) -> bool
    ensures { result ≡ has_function (members_view members.now.entries) }
{
    for (name, _) in members.iter() {
        if is_function(name.as_str()) {
            return true;
        }
    }
    false
}
