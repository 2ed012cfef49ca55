// The laws of house records.
ghost use Rattle.house.specs.Laws.{FieldsStandInOrder, NoHouseRecordIsLongerThan};

pub fn house_maps_stand()
    ensures order { FieldsStandInOrder }
    ensures size { NoHouseRecordIsLongerThan 18 }
{}
