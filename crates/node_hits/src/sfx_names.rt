//! The names and the values of the reply of SFX, in one table. They are those of its API, from memory.

/// The root element, the request that it is for, and what SFX says of it, which is empty here.
pub(crate) const CTX_OBJ_SET: &[u8] = b"ctx_obj_set";

pub(crate) const CTX_OBJ: &[u8] = b"ctx_obj";

pub(crate) const CTX_OBJ_ATTRIBUTES: &[u8] = b"ctx_obj_attributes";

/// The list of targets, which clients want even if it is empty, and one target.
pub(crate) const CTX_OBJ_TARGETS: &[u8] = b"ctx_obj_targets";

pub(crate) const TARGET: &[u8] = b"target";

/// The name of a target, and the one that readers see.
pub(crate) const TARGET_NAME: &[u8] = b"target_name";

pub(crate) const TARGET_PUBLIC_NAME: &[u8] = b"target_public_name";

/// A number: here that of the record in its list, and 0 for a link of the library.
pub(crate) const TARGET_SERVICE_ID: &[u8] = b"target_service_id";

/// The service of a target: one of the three values below.
pub(crate) const SERVICE_TYPE: &[u8] = b"service_type";

/// The address.
pub(crate) const TARGET_URL: &[u8] = b"target_url";

/// Names of programs of SFX, which are empty here.
pub(crate) const PARSER: &[u8] = b"parser";

pub(crate) const DISPLAYER: &[u8] = b"displayer";

/// Whether a target is of a related work: `no`.
pub(crate) const IS_RELATED: &[u8] = b"is_related";

pub(crate) const NO: &[u8] = b"no";

pub(crate) const NOTE: &[u8] = b"note";

/// The coverage of a target in words. Only the detailed form has it.
pub(crate) const COVERAGE: &[u8] = b"coverage";

pub(crate) const COVERAGE_TEXT: &[u8] = b"coverage_text";

pub(crate) const THRESHOLD_TEXT: &[u8] = b"threshold_text";

pub(crate) const COVERAGE_STATEMENT: &[u8] = b"coverage_statement";

/// An embargo in words. It is there only if there are such words.
pub(crate) const EMBARGO_TEXT: &[u8] = b"embargo_text";

pub(crate) const EMBARGO_STATEMENT: &[u8] = b"embargo_statement";

/// The packages that may have more hits. SFX has no such element: it is outside of the list of targets, so that clients
/// skip it.
pub(crate) const MORE_IN: &[u8] = b"more_in";

/// The name of such a package that readers see.
pub(crate) const PACKAGE: &[u8] = b"package";

/// How many others there are. It is there only if there are any.
pub(crate) const OTHERS: &[u8] = b"others";

/// The service of a hit, unless it is abstracts.
pub(crate) const FULL_TEXT: &[u8] = b"getFullTxt";

/// The service of a hit that is abstracts.
pub(crate) const ABSTRACT: &[u8] = b"getAbstract";

/// The service of a link of the library.
pub(crate) const WEB_SERVICE: &[u8] = b"getWebService";
