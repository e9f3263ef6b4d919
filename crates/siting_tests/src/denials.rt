//! Numbers and layers of denials.
use grid::CellRecord;
use heights::layer::Layer;
use siting_box::SitingBox;

// A total with a row left is denied by question 10, which the box asks.
#[test]
fn rows_left(rt: HostRuntime) {
    let mut records = [CellRecord {
        height: 0i16,
        count: 0,
    }; 2];
    let mut siting = SitingBox::new(&mut records);
    assert!(rt; siting.open(2, 1, 1, &[0; 4]).is_ok());
    assert_eq!(rt; siting.total().map_err(|denial| denial.number()), Err(10));
    assert_eq!(rt;
        siting.total().map_err(|denial| denial.layer()),
        Err(Layer::Box)
    );
}
