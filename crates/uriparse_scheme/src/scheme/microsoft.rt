//! The registered schemes whose names begin with `ms-`, in the order of their names.

/// A registered scheme whose name begins with `ms-`.
///
/// It is a separate enum within [`RegisteredScheme`](super::RegisteredScheme) because an enum has
/// at most 256 variants. It is `Copy` and does not allocate.
#[derive(Clone, Copy)]
pub enum MicrosoftScheme {
    // schemes.tsv: variants
    /// `ms-access`
    MSAccess,
    /// `ms-browser-extension`
    MSBrowserExtension,
    /// `ms-calculator`
    MSCalculator,
    /// `ms-drive-to`
    MSDriveTo,
    /// `ms-enrollment`
    MSEnrollment,
    /// `ms-excel`
    MSExcel,
    /// `ms-eyecontrolspeech`
    MSEyeControlSpeech,
    /// `ms-gamebaresrvices`
    MSGameBarServices,
    /// `ms-gamingoverlay`
    MSGamingOverlay,
    /// `ms-getoffice`
    MSGetOffice,
    /// `ms-help`
    MSHelp,
    /// `ms-infopath`
    MSInfoPath,
    /// `ms-inputapp`
    MSInputApp,
    /// `ms-lockscreencomponent-config`
    MSLockScreenComponentConfig,
    /// `ms-media-stream-id`
    MSMediaStreamID,
    /// `ms-mixedrealitycapture`
    MSMixedRealityCapture,
    /// `ms-officeapp`
    MSOfficeApp,
    /// `ms-people`
    MSPeople,
    /// `ms-powerpoint`
    MSPowerPoint,
    /// `ms-project`
    MSProject,
    /// `ms-publisher`
    MSPublisher,
    /// `ms-restoretabcompanion`
    MSRestoreTabCompanion,
    /// `ms-screenclip`
    MSScreenClip,
    /// `ms-screensketch`
    MSScreenSketch,
    /// `ms-search`
    MSSearch,
    /// `ms-search-repair`
    MSSearchRepair,
    /// `ms-secondary-screen-controller`
    MSSecondaryScreenController,
    /// `ms-secondary-screen-setup`
    MSSeocndaryScreenSetup,
    /// `ms-settings`
    MSSettings,
    /// `ms-settings-airplanemode`
    MSSettingsAirplaneMode,
    /// `ms-settings-bluetooth`
    MSSettingsBluetooth,
    /// `ms-settings-camera`
    MSSettingsCamera,
    /// `ms-settings-cellular`
    MSSettingsCellular,
    /// `ms-settings-cloudstorage`
    MSSettingsCloudStorage,
    /// `ms-settings-connectabledevices`
    MSSettingsConnectableDevices,
    /// `ms-settings-displays-topology`
    MSSettingsDisplaysTopology,
    /// `ms-settings-emailandaccounts`
    MSSettingsEmailAndAccounts,
    /// `ms-settings-language`
    MSSettingsLanguage,
    /// `ms-settings-location`
    MSSettingsLocation,
    /// `ms-settings-lock`
    MSSettingsLock,
    /// `ms-settings-nfctransactions`
    MSSettingsNFCTransactions,
    /// `ms-settings-notifications`
    MSSettingsNotifications,
    /// `ms-settings-power`
    MSSettingsPower,
    /// `ms-settings-privacy`
    MSSettingsPrivacy,
    /// `ms-settings-proximity`
    MSSettingsProximity,
    /// `ms-settings-screenrotation`
    MSSettingsScreenRotation,
    /// `ms-settings-wifi`
    MSSettingsWiFi,
    /// `ms-settings-workplace`
    MSSettingsWorkplace,
    /// `ms-spd`
    MSSPD,
    /// `ms-sttoverlay`
    MSSTTOverlay,
    /// `ms-transit-to`
    MSTransitTo,
    /// `ms-useractivityset`
    MSUserActivitySet,
    /// `ms-virtualtouchpad`
    MSVirtualTouchPad,
    /// `ms-visio`
    MSVisio,
    /// `ms-walk-to`
    MSWalkTo,
    /// `ms-whiteboard`
    MSWhiteboard,
    /// `ms-whiteboard-cmd`
    MSWhiteboardCMD,
    /// `ms-word`
    MSWord,
    // schemes.tsv: end
}
