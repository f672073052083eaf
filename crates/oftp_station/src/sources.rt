//! What the program is built from.

/// The SHA-256 of the sources, but of this file, as `checks/lint/version.py` computes it.
pub const SOURCES: &str =
    "sources 318dc91b91f6e0c334f8fa6c4f41ba57581c3931f3044bf5caf759da93ee97fc";
