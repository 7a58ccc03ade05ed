//! The fields of a schema.

use crate::schema::Field;
use sig_base::Sequence;

/// Fields in order, which contracts see as a list.
pub type FieldList = Sequence<Field>;
