//! The domains and ports that rows speak of, among those of the rows above.

use arch_model::{ArchParts, PdId, Port, PortId};
use case_files::Trouble;
use hw_text::ByteList;

/// The domain that the port's row belongs to.
pub fn last_domain(parts: &ArchParts) -> Result<PdId, Trouble> {
    match u32::try_from(parts.pds.len()) {
        Ok(count) if count > 0 => Ok(PdId(count - 1)),
        _ => Err(Trouble::BadLine),
    }
}

/// The port of this name of the domain of that name.
pub fn port_named(
    parts: &ArchParts,
    domain: &ByteList,
    name: &ByteList,
) -> Result<PortId, Trouble> {
    for (place, port) in parts.ports.rows().iter().enumerate() {
        if port.name.rows() == name.rows() && is_of(parts, port, domain) {
            return match u32::try_from(place) {
                Ok(place) => Ok(PortId(place)),
                Err(_) => Err(Trouble::BadLine),
            };
        }
    }
    Err(Trouble::BadLine)
}

fn is_of(parts: &ArchParts, port: &Port, domain: &ByteList) -> bool {
    match parts.pds.rows().get(port.owner.0 as usize) {
        Some(pd) => pd.name.rows() == domain.rows(),
        None => false,
    }
}
