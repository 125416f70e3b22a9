use hl_core::Core;
use hl_counts::CountTable;
use hl_model::Tag;

/// The core behind the door: it counts its slots by epoch, and its jobs are bare tags.
pub type Door = Core<CountTable, Tag>;
