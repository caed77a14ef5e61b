//! The permissions of a pair: texts that are each `pub` or `sub` (RFC 9431, 2.3).
ghost use Rattle.std.specs.Prelude.{◌≡◌};
ghost use Rattle.serde_json.specs.View.{view, items_view};
ghost use Rattle.sng_scope.specs.Scopes.{says, are_texts, are_permissions, has_text};

use serde_json::Value;

/// Whether each item is a text.
pub fn are_texts(items: &[Value]) -> bool
    ensures { result ≡ are_texts (items_view items.now) }
{
    for item in items {
        if item.as_str().is_none() {
            return false;
        }
    }
    true
}

/// Whether each item is `pub` or `sub`.
pub fn are_permissions(items: &[Value]) -> bool
    ensures { result ≡ are_permissions (items_view items.now) }
{
    for item in items {
        if !says(item, "pub") && !says(item, "sub") {
            return false;
        }
    }
    true
}

/// Whether the text is among the items.
pub fn has_text(items: &[Value], text: &str) -> bool
    ensures { result ≡ has_text text.now (items_view items.now) }
{
    for item in items {
        if says(item, text) {
            return true;
        }
    }
    false
}

/// Whether the value is this text.
pub fn says(value: &Value, text: &str) -> bool
    ensures { result ≡ says text.now (view value.now) }
{
    match value.as_str() {
        None => false,
        Some(said) => said == text,
    }
}
