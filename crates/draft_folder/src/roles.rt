//! The orders in which documents are signed and offered, by their roles.

/// Where a role's document stands in the order in which documents are signed: root, targets metadata, snapshot, timestamp.
pub fn sign_order(role: &str) -> u8 {
    match role {
        "root" => 0,
        "targets" => 1,
        "snapshot" => 3,
        "timestamp" => 4,
        _ => 2,
    }
}

/// Where it stands in the order in which documents are offered: root, timestamp, snapshot, targets, other roles.
pub fn offer_order(role: &str) -> u8 {
    match role {
        "root" => 0,
        "timestamp" => 1,
        "snapshot" => 2,
        "targets" => 3,
        _ => 4,
    }
}
