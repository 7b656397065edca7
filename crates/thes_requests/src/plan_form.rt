//! The forms in which several requests are sent.
ghost use Rattle.std.specs.Prelude.{◌≡◌, Some, unwrap_or};
ghost use Rattle.serde_json.specs.Data.{null};
ghost use Rattle.serde_json.specs.Find.{get, get_member};
ghost use Rattle.thes_requests.specs.PlanForms.{form_in, is_object_form, is_plan_value, sole_member};
ghost use Rattle.thes_requests.specs.Tree.{members_view, view};

use crate::tree::Value;

/// The form in which several requests are sent.
#[derive(Clone, Copy, Debug, PartialEq, Eq)]
pub enum PlanForm {
    /// An array: a plan.
    Array,
    /// An object with the member `perform`: a plan whose changes of rows are reported.
    Perform,
    /// An object with the member `try`: a plan that is only tried, with its changes of rows.
    Try,
    /// An object with the member `each`: requests that are performed each by itself, and their
    /// changes of rows.
    Each,
}

impl PlanForm {
    /// Returns the form of a value, by the first of the three members that it has; a value without
    /// these members is an array, or no plan.
    pub fn from_value(value: &Value<'_>) -> PlanForm
        ensures { result ≡ form_in (view value.now) }
    {
        if value.get("perform").is_some() {
            PlanForm::Perform
        } else if value.get("try").is_some() {
            PlanForm::Try
        } else if value.get("each").is_some() {
            PlanForm::Each
        } else {
            PlanForm::Array
        }
    }

    // Returns whether the form is that of an object.
    fn is_object(self) -> bool
        ensures { result ≡ is_object_form self }
    {
        match self {
            PlanForm::Array => false,
            PlanForm::Perform | PlanForm::Try | PlanForm::Each => true,
        }
    }
}

/// Returns whether a value is read as several requests: an array, or an object with one of the
/// three members.
pub fn is_plan_value(value: &Value<'_>) -> bool
    ensures { result ≡ is_plan_value (Some (view value.now)) }
{
    value.as_array().is_some() || PlanForm::from_value(value).is_object()
}

/// Returns the value of an object's only member, if it has this name, or else null.
pub fn sole_member<'a>(name: &str, value: Value<'a>) -> Value<'a>
    ensures { view result ≡ sole_member name.now (view value.entry) }
{
    if value.has_count(1) {
        return named_member(name, value);
    }
    drop(value);
    Value::Null
}

// Returns the value of an object's member with this name, or null if there is none.
fn named_member<'a>(name: &str, value: Value<'a>) -> Value<'a>
    ensures { view result ≡ unwrap_or (get name.now (view value.entry)) null }
{
    match value {
        Value::Object(members) => last_member(name, members),
        _other => Value::Null,
    }
}

// Returns the value of the last member with this name, or null if there is none.
fn last_member<'a>(name: &str, members: Vec<(&'a str, Value<'a>)>) -> Value<'a>
    ensures { view result
        ≡ unwrap_or (get_member name.now (members_view members.entry.items)) null }
{
    let mut left = members;
    while let Some((found, value)) = left.pop() {
        if name == found {
            return value;
        }
    }
    Value::Null
}
