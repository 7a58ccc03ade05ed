//! Tests of trees and long texts of YAML.

mod nodes;
mod trees;
