//! The fields of answers.
use crate::answer::{Answer, Kind};
use crate::script::SCRIPT;
use crate::style::STYLE;
use base64::engine::general_purpose::STANDARD;
use sha2::{Digest, Sha256};
use std::alloc::{AllocError, Global};

/// A field: its name and its value.
#[derive(Drop)]
pub struct Field {
    pub name: &'static str,
    pub value: String,
}

// The hash of a source in a policy (Content Security Policy Level 3, section 2.3.1).
fn hash_of(alloc: Global, source: &str) -> Result<String, AllocError> {
    let mut hasher = Sha256::new();
    hasher.update(source.as_bytes());
    let digest = hasher.finalize();
    let text = STANDARD.encode(alloc, &digest)?;
    format!(in alloc; "'sha256-{text}'")
}

// Nothing is loaded from elsewhere, and nothing runs but the page's own style and script.
fn policy(alloc: Global) -> Result<Field, AllocError> {
    let (style, script) = (hash_of(alloc, STYLE)?, hash_of(alloc, SCRIPT)?);
    let value = format!(in alloc;
        "default-src 'none'; style-src {style}; script-src {script}; connect-src 'self'; form-action 'self'; base-uri 'none'; frame-ancestors 'none'"
    )?;
    Ok(Field {
        name: "content-security-policy",
        value,
    })
}

fn content_type(kind: Kind) -> &'static str {
    match kind {
        Kind::Html => "text/html; charset=utf-8",
        Kind::Prometheus => "text/plain; version=0.0.4; charset=utf-8",
        Kind::OpenMetrics => "application/openmetrics-text; version=1.0.0; charset=utf-8",
        Kind::Json => "application/json",
        Kind::Text => "text/plain; charset=utf-8",
    }
}

impl Answer {
    /// The fields that it is sent with, but for Content-Length.
    pub fn fields(&self, alloc: Global) -> Result<Vec<Field>, AllocError> {
        let allow = if self.status == 405 { "GET, HEAD" } else { "" };
        let values = [
            ("content-type", content_type(self.kind)),
            ("x-content-type-options", "nosniff"),
            ("referrer-policy", "no-referrer"),
            ("cross-origin-resource-policy", "same-origin"),
            ("cache-control", "no-store"),
            ("allow", allow),
        ];
        let mut fields = Vec::new(alloc);
        for (name, value) in values {
            if !value.is_empty() {
                let value = String::from_str(alloc, value)?;
                fields.push(Field { name, value })?;
            }
        }
        if self.kind == Kind::Html {
            fields.push(policy(alloc)?)?;
        }
        Ok(fields)
    }
}
